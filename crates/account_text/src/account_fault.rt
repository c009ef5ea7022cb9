//! Why a text isn't that of an account.

ghost use Rattle.account_text.specs.declared.account_fault.AccountFault.TheVariants.{Memory};
ghost use Rattle.std.specs.Prelude.{◌≡◌};

use std::alloc::AllocError;
use thiserror::Error;

/// Why a text can't be read as an account. `Memory`: an allocation failed. `NotAccount`: the text isn't JSON, or its
/// rows aren't those of an account.
#[derive(Clone, Copy, Debug, PartialEq, Eq, Error)]
pub enum AccountFault {
    #[error("1 Memory")]
    Memory,
    #[error("100 NotAccount")]
    NotAccount,
}

impl From<AllocError> for AccountFault {
    ghost from_gives = { λ _ e. e ≡ Memory };

    fn from(_error: AllocError) -> AccountFault {
        AccountFault::Memory
    }
}
