//! Laws of the texts of names.
ghost use Rattle.std.specs.Prelude.{ℕ, List};
ghost use Rattle.domain_text.specs.declared.name_symbol.NameSymbol.{NameSymbol};
ghost use Rattle.domain_text.specs.Laws.{OneName, OneRelative, IsTextOfOneName, IsTextOfOneRelative, AppendsByGrammar, ReadsShown};

/// A text is that of exactly one name, or has exactly one fault. Parts one after another, from nothing, make what the
/// grammar says. The texts that a name shows are read as that name.
pub fn text_laws()
    ensures names { (ps : List NameSymbol) → OneName ps }
    ensures relative { (ps : List NameSymbol) → OneRelative ps }
    ensures texts { (cs : List ℕ) → IsTextOfOneName cs }
    ensures relative_texts { (cs : List ℕ) → IsTextOfOneRelative cs }
    ensures appends { (ps : List NameSymbol) → AppendsByGrammar ps }
    ensures shown { (ls : List (List ℕ)) → ReadsShown ls }
{}
