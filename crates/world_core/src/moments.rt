//! Moments, as texts of RFC 3339 in UTC with whole seconds.

ghost use Rattle.std.specs.Prelude.{◌≡◌};
ghost use Rattle.std.specs.Cmp.Lexicographic.{pointwise};
ghost use Rattle.binder_model.specs.World.{fits_shape, is_time};

use kube_types::text::Text;

/// The moment with which a world begins.
pub const FIRST_MOMENT: &str = "2000-01-01T00:00:00Z";

/// The bytes of a moment, a `d` for each digit.
const SHAPE: &[u8] = b"dddd-dd-ddTdd:dd:ddZ";

fn fits_shape(shape: u8, byte: u8) -> bool
    ensures { result ≡ fits_shape shape byte }
{
    if shape == b'd' {
        b'0' <= byte && byte <= b'9'
    } else {
        shape == byte
    }
}

/// Whether each byte fits that of the shape.
fn fits(shape: &[u8], bytes: &[u8]) -> bool
    ensures { result ≡ pointwise fits_shape shape.now bytes.now }
{
    if shape.len() != bytes.len() {
        return false;
    }
    for i in 0..shape.len() {
        if !fits_shape(shape[i], bytes[i]) {
            return false;
        }
    }
    true
}

/// Whether the text has the shape of a moment.
pub fn is_time(text: &Text) -> bool
    ensures { result ≡ is_time text.now }
{
    fits(SHAPE, text.as_str().as_bytes())
}
