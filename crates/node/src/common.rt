//! Keys, and what two of them have in common.

ghost use Rattle.std.specs.Prelude.{◌≡◌, ◌≤◌, ◌+◌, length, take, drop};
ghost use Rattle.std.specs.Int.{w64, to_le_bytes};
ghost use Rattle.spec.specs.NodeFormat.{common, is_key};

/// How many bytes a key has at most.
pub(crate) const LONGEST_KEY: usize = 1024;

/// Whether these are 1 to 1,024 bytes, as a node asks of each key (this repository's own choice: a
/// key of the AT Protocol is shorter).
pub fn is_key(bytes: &[u8]) -> bool
    ensures { result ≡ is_key bytes.now }
{
    !bytes.is_empty() && bytes.len() <= LONGEST_KEY
}

/// The first eight bytes as one number, the lowest first.
fn word(bytes: &[u8]) -> u64
    requires { 8 ≤ length bytes.now }
    ensures { to_le_bytes w64 result ≡ take 8 bytes.now }
{
    u64::from_le_bytes([
        bytes[0], bytes[1], bytes[2], bytes[3], bytes[4], bytes[5], bytes[6], bytes[7],
    ])
}

/// How many bytes two keys have in common from the front on, of which at most seven are left out. They are compared
/// eight at a time, as the keys of a node mostly have their collection and more in common.
fn common_words(one: &[u8], other: &[u8]) -> usize
    ensures within_one { result ≤ length one.now }
    ensures within_other { result ≤ length other.now }
    ensures value { common one.now other.now
        ≡ result + common (drop result one.now) (drop result other.now) }
{
    let mut same = 0;
    while one.len() - same >= 8 && other.len() - same >= 8 {
        if word(&one[same..]) != word(&other[same..]) {
            return same;
        }
        same += 8;
    }
    same
}

/// How many bytes two keys have in common from the front on.
pub(crate) fn common_len(one: &[u8], other: &[u8]) -> usize
    ensures value { result ≡ common one.now other.now }
    ensures within_one { result ≤ length one.now }
    ensures within_other { result ≤ length other.now }
{
    let mut same = common_words(one, other);
    while same < one.len() && same < other.len() && one[same] == other[same] {
        same += 1;
    }
    same
}
