// Words ask for one thing, and an input has one answer. A call does nothing: its contract is the law.
ghost use Rattle.std.specs.Prelude.{◌≡◌, ℕ, List, Result};
ghost use Rattle.requests.specs.declared.refusal.Refusal.{Refusal};
ghost use Rattle.requests.specs.Answers.{HasOutput, IsInputRefusal, IsOutput};
ghost use Rattle.requests.specs.Questions.{Asked, IsRequest, IsWordsRefusal};

/// Words ask for one thing, or are refused for one reason.
pub fn one_request()
    ensures asked { (read : Result Asked Refusal) (a b : Asked) → IsRequest read a →
        IsRequest read b → a ≡ b }
    ensures refusal { (read : Result Asked Refusal) (r s : Refusal) → IsWordsRefusal read r →
        IsWordsRefusal read s → r ≡ s }
    ensures apart { (read : Result Asked Refusal) (asked : Asked) (refusal : Refusal) →
        IsRequest read asked → ¬ IsWordsRefusal read refusal }
{}

/// An input is refused for one reason, and never where it is answered or has to be.
pub fn one_answer()
    ensures refusal { (asked : Asked) (input : List ℕ) (r s : Refusal) →
        IsInputRefusal asked input r → IsInputRefusal asked input s → r ≡ s }
    ensures answered { (asked : Asked) (input text : List ℕ) (refusal : Refusal) →
        IsOutput asked input text → ¬ IsInputRefusal asked input refusal }
    ensures asked { (asked : Asked) (input : List ℕ) (refusal : Refusal) →
        HasOutput asked input → ¬ IsInputRefusal asked input refusal }
{}
