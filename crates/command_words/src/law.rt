//! Laws of the definitions, as contracts.
ghost use Rattle.command_words.specs.Laws.{MovesOptions, ReadsApart, ReadsRest, ReadsSpelled};

/// What is spelled is read: each word by itself, an option with its value in one word or in two, and words behind `--`.
pub fn spelling()
    ensures spelled { ReadsSpelled }
    ensures apart { ReadsApart }
    ensures rest { ReadsRest }
{}

/// What is asked for doesn't depend on where among the other words an option stands.
pub fn places()
    ensures { MovesOptions }
{}
