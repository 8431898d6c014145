// The binary form's number: groups of seven bits, the lowest first, the top bit set on all groups but the last.
// A number is below 2 ^ 32, so it has at most five groups; zero is no last group after others.
#![tactic(auto)]

ghost use Rattle.std.specs.Prelude.{◌≡◌, ◌+◌, ◌*◌, ◌^◌, ◌<◌, ◌≤◌, length, IfOk, nat_le};
ghost use Rattle.std.specs.Result.{result_err, result_unwrap_or};
ghost use Rattle.refusals.specs.Parts.{told};
ghost use Rattle.groups.specs.Groups.{read_up_to, groups_read, groups_of, GroupsExact};
ghost use Rattle.groups.specs.Puts.{put_all, put, ReadsBack};
ghost use Rattle.groups.specs.Examples.{GroupsExamples};

use refusals::refusal::Refusal;

// Reads a group and at most `left` groups after it: the number and the bytes after it.
fn read_up_to(bytes: &[u8], left: u8) -> Result<(u32, &[u8]), Refusal>
    requires { left ≤ 4 }
    ensures value { told result ≡ read_up_to left bytes.now }
    ensures small { IfOk result (λ p. p.0 < 16 * 128 ^ left) }
{
    let [first, rest @ ..] = bytes else {
        return Err(Refusal::CutOff);
    };
    let group = u32::from(*first);
    if left == 0 {
        return if group < 16 {
            Ok((group, rest))
        } else {
            Err(Refusal::BadNumber)
        };
    }
    if group < 128 {
        return Ok((group, rest));
    }
    let (above, after) = read_up_to(rest, left - 1)?;
    if above == 0 {
        return Err(Refusal::BadNumber);
    }
    Ok((group - 128 + 128 * above, after))
}

// The number that the bytes begin with and the bytes after it, or why they do not begin with one.
// At most four groups come after the first.
pub fn read_groups(bytes: &[u8]) -> Result<(u32, &[u8]), Refusal>
    ensures value { told result ≡ groups_read bytes.now }
    ensures exact { GroupsExact bytes.now }
{
    read_up_to(bytes, 4)
}

// Why the bytes do not begin with a number in groups; None where they do.
pub fn groups_fault(bytes: &[u8]) -> Option<Refusal>
    ensures { result ≡ result_err (groups_read bytes.now) }
{
    read_groups(bytes).err()
}

// The number that the bytes begin with and the bytes after it; 0 and all the bytes where there is a fault.
// Bytes that have no fault are the groups of the number and then the bytes after it, and such bytes have no fault.
pub fn groups(bytes: &[u8]) -> (u32, &[u8])
    ensures value { (result.0, result.1.now) ≡ result_unwrap_or (groups_read bytes.now) (0, bytes.now) }
    ensures exact { GroupsExact bytes.now }
{
    read_groups(bytes).unwrap_or((0, bytes))
}

// How many groups a number has.
pub fn groups_len(n: u32) -> usize
    ensures value { result ≡ length (groups_of n) }
    ensures few { result ≤ 5 }
{
    if n < 128 { 1 } else { 1 + groups_len(n / 128) }
}

// Whether `len` places leave room for a number from the place `at` on.
fn has_room(len: usize, at: usize, n: u32) -> bool
    ensures { result ≡ nat_le (at + length (groups_of n)) len }
{
    at <= len && groups_len(n) <= len - at
}

// Writes the groups of a number from the place `at` on, and tells the place after them.
// The slice and a place in it stand side by side: a struct that held the slice by `&mut` would have to say of each call what it
// is lent.
fn put_all(out: &mut [u8], at: usize, n: u32) -> usize
    requires { at + length (groups_of n) ≤ length out.old }
    ensures place { result ≡ at + length (groups_of n) }
    ensures after { out.new ≡ put_all out.old at (groups_of n) }
{
    if n < 128 {
        out[at] = n as u8;
        return at + 1;
    }
    out[at] = (128 + n % 128) as u8;
    put_all(out, at + 1, n / 128)
}

// Writes the groups of a number from the place `at` on, and tells the place after them; None where places lack.
// What is written is read back.
pub fn put_groups(out: &mut [u8], at: usize, n: u32) -> Option<usize>
    ensures value { (result, out.new) ≡ put out.old at (groups_of n) }
    ensures back { ReadsBack n at result out.new }
{
    if !has_room(out.len(), at, n) {
        return None;
    }
    Some(put_all(out, at, n))
}

// Numbers in groups, and bytes that are refused.
pub fn groups_examples()
    ensures { GroupsExamples }
{}
