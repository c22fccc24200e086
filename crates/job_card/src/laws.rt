//! What holds of cards and their texts.

ghost use Rattle.job_card.specs.Laws.{CardsHaveTheirText};

/// Two cards with one text are one card.
pub fn cards_have_their_text()
    ensures { CardsHaveTheirText }
{}
