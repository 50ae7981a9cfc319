// The front of an array of bytes: what RAM and ROM show.
ghost use Rattle.std.specs.Prelude.{◌≡◌, ℕ, ◌<◌, ◌≤◌, length, take, replicate, slice_index, slice_set};
ghost use Rattle.std.specs.List.{slice_get};
ghost use Rattle.bank.specs.Answers.{within};
ghost use Rattle.bank.specs.declared.front.TheConstants.{CAPACITY};

use crate::bank::PastEnd;

// How many bytes RAM or ROM can show.
pub(crate) const CAPACITY: usize = 8192;

#[derive(Drop)]
pub struct Front {
    pub(crate) bytes: [u8; CAPACITY],
    pub(crate) len: usize,
    ghost whole: { length bytes ≡ CAPACITY },
    ghost within: { len ≤ CAPACITY },
    ghost small: { (i : ℕ) → slice_index bytes i < 256 },
}

impl Front {
    // So many zeros.
    pub(crate) fn zeros(len: usize) -> Front
        requires { len ≤ CAPACITY }
        ensures shown { take result.len result.bytes ≡ replicate len 0 }
        ensures len { result.len ≡ len }
    {
        // A repeat, so that no byte is written twice.
        Front {
            bytes: [0u8; CAPACITY],
            len,
        }
    }

    // The first of the bytes, as many as there is room for.
    pub(crate) fn copy_of(bytes: &[u8]) -> Front
        ensures shown { take result.len result.bytes ≡ take CAPACITY bytes.now }
        ensures len { result.len ≡ length (take CAPACITY bytes.now) }
    {
        let len = bytes.len().min(CAPACITY);
        let mut own = [0u8; CAPACITY];
        own[..len].copy_from_slice(&bytes[..len]);
        Front { bytes: own, len }
    }

    pub(crate) fn shown(&self) -> &[u8]
        ensures { result.now ≡ take self.now.len self.now.bytes }
    {
        &self.bytes[..self.len]
    }

    pub(crate) fn len(&self) -> u64
        ensures { result ≡ length (take self.now.len self.now.bytes) }
    {
        self.len as u64
    }

    // The byte, or none past what is shown. Offsets go to places by casts, which the check shows to lose
    // nothing; `try_from` would add a refusal that never comes.
    pub(crate) fn get(&self, offset: u64) -> Option<u8>
        ensures { result ≡ slice_get (take self.now.len self.now.bytes) offset }
    {
        self.shown().get(offset as usize).copied()
    }

    // Puts the byte there, or refuses past what is shown. By index, since a proof knows nothing of the
    // element that `get_mut` lends.
    pub(crate) fn set(&mut self, offset: u64, byte: u8) -> Result<(), PastEnd>
        ensures answer { result ≡ within (length (take self.old.len self.old.bytes)) offset }
        ensures shown { self.new.len ≡ self.old.len }
        ensures after { take self.new.len self.new.bytes ≡ slice_set (take self.old.len self.old.bytes) offset byte }
    {
        if offset >= self.len() {
            return Err(PastEnd);
        }
        self.bytes[offset as usize] = byte;
        Ok(())
    }
}
