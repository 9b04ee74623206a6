// The text of a rule file's listing, and its lines.

#![tactic(auto)]

pub mod lines;

ghost use Rattle.std.specs.Prelude.{◌≡◌, ◌++◌, ◌≤◌, ◌<◌, length, take, drop};
ghost use Rattle.file_spec.specs.File.{names_of, rule_in};
ghost use Rattle.file_spec.specs.Rows.{file_row};
ghost use Rattle.slice_text.specs.Put.{Put};
ghost use Rattle.listing_spec.specs.Computed.{listing_of};
ghost use Rattle.listing_spec.specs.Listing.{Printed};

// No listing is longer: line one of 15 bytes, 16 n lines of 14, 512 m lines of 26 and 4,096 t lines of 13.
pub const LONGEST: usize = 66799;

// The initial state of an accepted file's rule.
fn initial_of(file: &[u8]) -> u32
    ensures { (result < 8) × (file_row file.now ≡ 0 → result ≡ (rule_in file.now).initial) }
{
    match file_read::read_rule(file) {
        Err(_) => 0,
        Ok(l) => {
            let h = l.head;
            h.initial as u32
        }
    }
}

// The name bytes of an accepted file.
fn names_in(file: &[u8]) -> &[u8]
    ensures { file_row file.now ≡ 0 → result.now ≡ names_of file.now }
{
    match file_read::read_rule(file) {
        Err(_) => &file[..0],
        Ok(l) => file_read::names_of(file, l),
    }
}

// The listing of a file.
fn put_listing(out: &mut [u8], file: &[u8]) -> usize
    requires { length (listing_of file.now) ≤ length out.old }
    ensures { Put out.old 0 (listing_of file.now) out.new result }
{
    if 4096 < file.len() {
        return slice_text::put(out, 0, b"long\n");
    }
    let mut list = [0u64; 512];
    let mut transitions = [0u64; 4096];
    match build::build(file, &mut list, &mut transitions) {
        Err(refusal) => crate::lines::put_refused(out, refusal.row()),
        Ok(counts) => {
            let m = counts.macrostates;
            let t = counts.transitions;
            crate::lines::put_table(
                out,
                initial_of(file),
                names_in(file),
                &list[..m],
                &transitions[..t],
            )
        }
    }
}

// Writes the listing of a rule file to the start of out and touches nothing after it; the length of the listing.
pub fn listing(file: &[u8], out: &mut [u8; LONGEST]) -> usize
    ensures value { result ≡ length (listing_of file.now) }
    ensures out_after { out.new ≡ listing_of file.now ++ drop (length (listing_of file.now)) out.old }
    ensures upper_bound { result ≤ length out.new }
    ensures printed { Printed file.now (take result out.new) × (drop result out.new ≡ drop result out.old) }
{
    put_listing(out, file)
}
