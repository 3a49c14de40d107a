ghost use Rattle.std.specs.Prelude.{ℕ, List};
ghost use Rattle.nesc_base.specs.declared.runs.Area.{Area};
ghost use Rattle.extent_node.specs.Laws.{AreOneNode, AreSomeNode, HaveNoBadWord, HaveOneFirstBad, HoldOnce};
ghost use Rattle.extent_node.specs.declared.entries.Entry.{Entry};
ghost use Rattle.extent_node.specs.declared.node.Kind.{Kind};

/// No word of a node is bad.
pub fn nodes_have_no_bad_word()
    ensures { (words : List ℕ) (memory_words : ℕ) (area : Area) → HaveNoBadWord words memory_words area }
{}

/// Words of which none is bad are those of a node that keeps the rules.
pub fn words_without_a_bad_one_are_a_node()
    ensures { (words : List ℕ) (memory_words : ℕ) (area : Area) → AreSomeNode words memory_words area }
{}

/// No two nodes have the same words.
pub fn words_are_one_node()
    ensures { (words : List ℕ) → AreOneNode words }
{}

/// No block stands in two entries of a node.
pub fn one_entry_holds_a_block()
    ensures { (kind : Kind) (entries : List Entry) (v : ℕ) → HoldOnce kind entries v }
{}

/// Words have one first bad word at most.
pub fn one_word_is_the_first_bad()
    ensures { (words : List ℕ) (memory_words : ℕ) (area : Area) → HaveOneFirstBad words memory_words area }
{}
