//! Laws of the texts of accounts.

ghost use Rattle.std.specs.Prelude.{◌≡◌, ℕ, List};
ghost use Rattle.encodings.specs.Account.{Account};
ghost use Rattle.account_text.specs.Text.{IsAccountText};

use octet_account::law::lemma_one_account;

/// A text is the text of at most one account.
pub fn lemma_one_account_of_a_text()
    ensures { (text : List ℕ) (a b : Account) → IsAccountText text a → IsAccountText text b → a ≡ b }
{
    lemma_one_account();
}
