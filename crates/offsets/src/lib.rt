// The offsets of the records of a file.
#![tactic(auto)]

ghost use Rattle.std.specs.Prelude.{◌≡◌, ◌≤◌, length, take};
ghost use Rattle.offsets.specs.Offsets.{offsets_of};

// Writes the offsets of the records from `from` on, up to where no whole record begins, and returns how many there are: no heap
// may hold them, and what is written is read through `out` again.
pub fn place(file: &[u8], from: usize, out: &mut [u32]) -> usize
    requires { (from ≤ length file.now) × (length file.now ≤ 1048576) × (length (offsets_of file.now from) ≤ length out.old) }
    ensures { (result ≤ length out.old) × (take result out.new ≡ offsets_of file.now from) }
{
    let mut at = from;
    let room = out.len();
    for (n, place) in out.iter_mut().enumerate() {
        let rest = record::rest_at(file, at);
        let Some(whole) = record::whole_record(rest) else {
            return n;
        };
        *place = at as u32;
        at += whole.header + whole.body;
    }
    room
}
