//! What is proved of the definitions themselves. Each law is a function that does nothing: its clause is the law.
ghost use Rattle.std.specs.Prelude.{◌≡◌, ℕ, ◌↔◌};
ghost use Rattle.lw_model.specs.declared.record.Record.{Record};
ghost use Rattle.lw_model.specs.Lawful.{Lawful};
ghost use Rattle.lw_model.specs.Verdict.{verdict, IsVerdict};
ghost use Rattle.lw_model.specs.Journal.{IsOfClients};

/// A record is lawful exactly where it has no verdict: the nine rules as facts and the nine rules as tests of lines
/// say the same.
pub fn verdict_is_exact()
    ensures { (r : Record) → (verdict r ≡ None) ↔ Lawful r }
{}

/// A verdict is the first of the nine rules that fails, with the first line of the text at which it does.
pub fn verdict_is_first()
    ensures { (r : Record) (clause line : ℕ) → verdict r ≡ Some (clause, line) → IsVerdict r clause line }
{}

/// In a lawful record the requests of an image's journal that came from one client are those that the client lists as
/// sent on that image, each once and in the client's own order.
pub fn journals_are_of_clients()
    ensures { (r : Record) → Lawful r → IsOfClients r }
{}
