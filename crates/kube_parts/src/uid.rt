//! Unique ids.

ghost use Rattle.std.specs.Prelude.{◌≡◌, ◌<◌, ◌^◌, IfOk};
ghost use Rattle.kube_parts.specs.Uids.{SerialsAreApart, UidReadsBack, uid_of_serial, uid_of_text, uid_text};

use plain_data::copies::{OutOfMemory, Plain};
use plain_data::text::Text;
use std::alloc::Global;
use uuid::Uuid;

/// The bits of version 8 and of the variant of RFC 9562.
const VERSION_8: u128 = 0x0000_0000_0000_8000_8000_0000_0000_0000;

/// A unique id, the bits of a UUID.
#[derive(Clone, Copy, Debug, PartialEq, Eq)]
pub struct Uid(pub u128);

impl Plain for Uid {
    fn copy(&self, _alloc: Global) -> Result<Uid, OutOfMemory> {
        Ok(*self)
    }

    fn same(&self, other: &Uid) -> bool {
        *self == *other
    }
}

impl Uid {
    /// The id of a serial number: a UUID of version 8 (RFC 9562) whose lowest 62 bits are the number.
    pub fn from_serial(n: u64) -> Uid
        requires { n < 2 ^ 62 }
        ensures { result ≡ uid_of_serial n }
    {
        Uid(VERSION_8 + n as u128)
    }

    /// The text of the UUID, hyphenated, in lower case.
    pub fn text(self, alloc: Global) -> Result<Text, OutOfMemory>
        ensures { IfOk result (λ text. text ≡ uid_text self) }
    {
        let mut buffer = Uuid::encode_buffer();
        let uuid = Uuid::from_u128(self.0);
        let text = uuid.hyphenated().encode_lower(&mut buffer);
        Text::new(alloc, text)
    }

    /// The UUID of a text, in one of the four forms of the crate `uuid`, in either case.
    pub fn parse(text: &str) -> Option<Uid>
        ensures { result ≡ uid_of_text text.now }
    {
        match Uuid::try_parse(text) {
            Ok(uuid) => Some(Uid(uuid.as_u128())),
            Err(_) => None,
        }
    }
}

/// The law that two serial numbers give two ids.
pub fn serials_are_apart()
    ensures { SerialsAreApart }
{}

/// The law that the text of an id gives it back.
pub fn uid_reads_back()
    ensures { UidReadsBack }
{}
