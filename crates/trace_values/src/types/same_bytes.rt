//! Whether bytes are equal, short ones without a call.

ghost use Rattle.std.specs.Prelude.{◌≡◌, ◌≤◌, ◌*◌, length};
ghost use Rattle.std.specs.Str.{bytes_eq};

/// Whether bytes are equal. From 4 to 32 of them are compared in line.
#[inline(always)]
pub(crate) fn same_bytes(a: &[u8], b: &[u8]) -> bool
    ensures { result ≡ bytes_eq a.now b.now }
{
    if a.len() != b.len() {
        return false;
    }
    match a.len() {
        4..=7 => same_ends::<4>(a, b),
        8..=16 => same_ends::<8>(a, b),
        17..=32 => same_ends::<16>(a, b),
        _ => a == b,
    }
}

/// Whether bytes of one length are equal. Where they are at least `N`, their first `N` and their last are compared,
/// which may overlap.
#[inline(always)]
fn same_ends<const N: usize>(a: &[u8], b: &[u8]) -> bool
    requires same { length a.now ≡ length b.now }
    requires most { length a.now ≤ 2 * N }
    requires small { N ≤ 16 }
    ensures { result ≡ bytes_eq a.now b.now }
{
    match (
        a.first_chunk::<N>(),
        b.first_chunk::<N>(),
        a.last_chunk::<N>(),
        b.last_chunk::<N>(),
    ) {
        (Some(a_front), Some(b_front), Some(a_back), Some(b_back)) => {
            (*a_front == *b_front) & (*a_back == *b_back)
        }
        _ => a == b,
    }
}
