// Laws of following a log live: the set by runs, the bytes of state, and what a history leaves. By them a call that knows state alone does
// what the whole history asks for.

#![tactic(auto)]
