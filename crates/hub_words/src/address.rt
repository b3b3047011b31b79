//! An address as the value of an argument.
ghost use Rattle.addresses.specs.Addresses.{address_of};

use crate::from_word::FromWord;
use crate::word_error::WordError;
use addresses::address::{Address, AddressError, read_address};
use std::alloc::Global;

impl FromWord for Address {
    ghost reads = { address_of };

    fn read(alloc: Global, word: &str) -> Result<Address, WordError> {
        match read_address(alloc, word) {
            Ok(address) => Ok(address),
            Err(AddressError::BadAddress) => Err(WordError::Refused),
            Err(AddressError::Memory) => Err(WordError::Memory),
        }
    }
}
