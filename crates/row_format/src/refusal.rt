//! Why a row has no answer.

use std::alloc::{AllocError, AllocFailed, Global};
use std::fmt;

/// `Memory`: an allocation failed. `Message`: the words of a fault.
#[derive(Drop)]
pub enum Refusal {
    Memory,
    Message(String),
}

impl From<AllocError> for Refusal {
    fn from(_error: AllocError) -> Refusal {
        Refusal::Memory
    }
}

impl<T: Drop> From<AllocFailed<T>> for Refusal {
    fn from(_error: AllocFailed<T>) -> Refusal {
        Refusal::Memory
    }
}

/// The words that a fault prints.
pub fn refuse<F: fmt::Display>(alloc: Global, fault: &F) -> Refusal {
    match fault.to_string(alloc) {
        Ok(words) => Refusal::Message(words),
        Err(_) => Refusal::Memory,
    }
}
