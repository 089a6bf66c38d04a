//! Capabilities that stand in bytes, read where they are wanted. They were judged before, so that reading them stops nowhere.
ghost use Rattle.std.specs.Prelude.{◌≡◌, ◌≤◌, ◌<◌, ◌+◌, ◌∷◌, true, Some, is_some, length};
ghost use Rattle.csi_types.specs.Public.Spelled.{split_text, split_capabilities};

use crate::capability::{Capability, CapabilityList, has_capability};
use crate::lent::{AccessRef, CapabilityRef};
use crate::memory::NoMemory;
use crate::mode::Mode;
use std::alloc::Global;
use std::str;

/// Capabilities at the front of bytes, as many as `count`, at most 8. This profile's own.
#[derive(Clone, Copy)]
pub struct SpelledCapabilities<'a> {
    pub bytes: &'a [u8],
    pub count: u8,
    ghost few: { count ≤ 8 },
    ghost read: { is_some (split_capabilities count bytes.now) ≡ true },
}

// The first byte, and those behind it.
#[inline(always)]
fn split_byte(bytes: &[u8]) -> (u8, &[u8])
    requires { 1 ≤ length bytes.now }
    ensures { bytes.now ≡ result.0 ∷ result.1.now }
{
    let [byte, rest @ ..] = bytes else {
        unreachable!();
    };
    (*byte, rest)
}

// The text whose length is the first byte, and the bytes behind it.
#[inline(always)]
fn text_at(bytes: &[u8]) -> (&str, &[u8])
    requires { is_some (split_text bytes.now) ≡ true }
    ensures { split_text bytes.now ≡ Some (result.0.now, result.1.now) }
{
    let (count, rest) = split_byte(bytes);
    let (text, rest) = rest.split_at(count as usize);
    // It was UTF-8 when it was judged.
    (unsafe { str::from_utf8_unchecked(text) }, rest)
}

impl<'a> SpelledCapabilities<'a> {
    ghost use Rattle.std.specs.Prelude.{IfOk};
    ghost use Rattle.std.specs.List.{list_all};
    ghost use Rattle.csi_types.specs.Public.Lent.{lent_access, lent_capability};
    ghost use Rattle.csi_types.specs.Public.Listed.{listed};
    ghost use Rattle.csi_types.specs.Model.Same.{has_capability as is_among};
    ghost use Rattle.csi_types.specs.Public.Spelled.{split_access, split_capability};

    // The access at the front, and the bytes behind it.
    #[inline(always)]
    fn access_at(bytes: &'a [u8]) -> (AccessRef<'a>, &'a [u8])
        requires { is_some (split_access bytes.now) ≡ true }
        ensures { split_access bytes.now ≡ Some (lent_access result.0, result.1.now) }
    {
        let (byte, rest) = split_byte(bytes);
        if byte == 0 {
            return (AccessRef::Block, rest);
        }
        let (fs_type, rest) = text_at(rest);
        (AccessRef::Mount(fs_type), rest)
    }

    // The capability at the front, and the bytes behind it.
    #[inline(always)]
    fn capability_at(bytes: &'a [u8]) -> (CapabilityRef<'a>, &'a [u8])
        requires { is_some (split_capability bytes.now) ≡ true }
        ensures { split_capability bytes.now ≡ Some (lent_capability result.0, result.1.now) }
    {
        let (access, rest) = SpelledCapabilities::access_at(bytes);
        let (number, rest) = split_byte(rest);
        let mode = Mode::from_number(number).unwrap();
        (CapabilityRef { access, mode }, rest)
    }

    // Takes off the first one.
    fn take(&mut self) -> CapabilityRef<'a>
        requires { 0 < self.old.count }
        ensures first { listed self.old ≡ lent_capability result ∷ listed self.new }
        ensures fewer { self.new.count + 1 ≡ self.old.count }
    {
        let (first, bytes) = SpelledCapabilities::capability_at(self.bytes);
        *self = SpelledCapabilities {
            bytes,
            count: self.count - 1,
        };
        first
    }

    // Whether each of them is one of these.
    pub(crate) fn are_among(self, own: &[Capability]) -> bool
        ensures { result ≡ list_all (is_among own.now) (listed self.entry) }
    {
        let mut rest = self;
        while rest.count > 0 {
            let one = rest.take();
            if !has_capability(own, one) {
                return false;
            }
        }
        true
    }

    // A list of them, with texts of its own.
    pub(crate) fn to_list(self, alloc: Global) -> Result<CapabilityList, NoMemory>
        ensures { IfOk result (λ list. list ≡ listed self.entry) }
    {
        let mut items = Vec::with_capacity(alloc, self.count as usize)?;
        let mut rest = self;
        while rest.count > 0 {
            let one = rest.take();
            match one.to_capability(alloc) {
                Ok(capability) => items.push(capability)?,
                Err(_) => return Err(NoMemory),
            }
        }
        Ok(CapabilityList::try_new(items).unwrap())
    }
}
