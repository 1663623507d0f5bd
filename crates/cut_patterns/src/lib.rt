// A cut by its pattern: the pattern's bits set in a page or a block, and what a cut leaves of a step.
#![tactic(auto)]

ghost use Rattle.std.specs.Prelude.{◌≡◌, ◌*◌, ◌≤◌, length};
ghost use Rattle.cut_patterns.specs.Cuts.{raised_at};
ghost use Rattle.cut_patterns.specs.Struck.{most_bytes, struck, struck_after};

use operations::Stepped;

// Each 1 bit of a pattern set in the bytes from `at` on, as far as there are bytes.
fn raise(m: &mut [u8], at: usize, pattern: &[u8])
    ensures { m.new ≡ raised_at m.old at pattern.now }
{
    if m.len() <= at {
        return;
    }
    for i in 0..pattern.len().min(m.len() - at) {
        m[at + i] |= pattern[i];
    }
}

// The same in page or block k, each of which has so many bytes.
fn raise_in(m: &mut [u8], size: usize, k: usize, pattern: &[u8])
    requires { length m.old ≤ most_bytes }
    ensures { m.new ≡ raised_at m.old (size * k) pattern.now }
{
    raise(m, size.saturating_mul(k), pattern);
}

// What a cut leaves of a step that did this to a copy of the medium: whether it names what the step touched, and then the medium.
pub fn leave(m: &mut [u8], copy: &[u8], r: &Stepped, name: u64, pattern: &[u8]) -> bool
    requires { (length copy.now ≡ length m.old) × (length m.old ≤ most_bytes) }
    ensures { struck result m.new ≡ struck_after m.old copy.now r.now.number r.now.touched r.now.at name pattern.now }
{
    if r.number != 0 {
        return false;
    }
    if r.touched == operations::BLOCK {
        if name < 256 || name - 256 != r.at as u64 {
            return false;
        }
        raise_in(m, 4096, r.at, pattern);
        return true;
    }
    if name != r.at as u64 {
        return false;
    }
    m.copy_from_slice(copy);
    raise_in(m, 256, r.at, pattern);
    true
}
