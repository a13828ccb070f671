// Bytes of a lent slice. Every call is total: a byte outside the slice is read as 0, and what would be written there is
// dropped. Places count from the slice's start, in bytes.
ghost use Rattle.std.specs.Prelude.{◌≡◌, ℕ, ◌+◌, ◌<◌, get_or, drop, set};
ghost use Rattle.std.proofs.lemmas.List.Edits.{sets};

// The byte at a place; 0 outside the slice.
pub fn byte_at(s: &[u8], place: usize) -> u8
    ensures { result ≡ get_or s.now place 0 }
{
    s.get(place).copied().unwrap_or(0)
}

// The part of a slice from a place on; none where the place is outside.
fn from_place(s: &[u8], place: usize) -> &[u8]
    ensures { result.now ≡ drop place s.now }
{
    s.get(place..).unwrap_or(&[])
}

// The bytes from a place on, as many as the array has; 0 outside the slice.
pub fn bytes_at<const N: usize>(s: &[u8], place: usize) -> [u8; N]
    ensures { (k : ℕ) → k < N → get_or result k 0 ≡ get_or s.now (place + k) 0 }
{
    let part = from_place(s, place);
    if let Some(bytes) = part.first_chunk() {
        return *bytes;
    }
    let mut bytes = [0; N];
    bytes[..part.len()].copy_from_slice(part);
    bytes
}

// Puts an element at a place of a slice, counted from its start; dropped outside the slice.
pub fn put_at<T: Copy>(s: &mut [T], place: usize, x: T)
    ensures { s.new ≡ set s.old place x }
{
    if place < s.len() {
        s[place] = x;
    }
}

// Puts bytes at a place and behind it.
pub fn put_bytes(s: &mut [u8], place: usize, bytes: &[u8])
    ensures { s.new ≡ sets s.old place bytes.now }
{
    if place < s.len() {
        let n = bytes.len().min(s.len() - place);
        for i in 0..n {
            s[place + i] = bytes[i];
        }
    }
}

// Puts the bytes of an array at a place and behind it.
#[tactic(auto, using(crate::proofs::StoreLaws::sets_out))]
pub fn put_array<const N: usize>(s: &mut [u8], place: usize, bytes: &[u8; N])
    ensures { s.new ≡ sets s.old place bytes.now }
{
    if place < s.len() {
        for k in 0..N {
            put_at(s, place + k, bytes[k]);
        }
    }
}
