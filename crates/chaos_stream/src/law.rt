//! What the text of a stream is good for.
ghost use Rattle.chaos_stream.specs.Text.{TextBegins, TextAndPartBegin};
ghost use Rattle.chaos_stream.specs.Reading.{LooksFollowText};

/// The law of a stream's text. What a user has read, and what it consumed of the item in front, is
/// a prefix of what the peer's user wrote. The law needs that the items that were read are a prefix
/// of the items that were written.
pub fn law_text()
    // If the items that were read, one or more, are a prefix of the items that were written, then
    // so is their text.
    ensures items { TextBegins }
    // The text with any first part of the next data item is a prefix too.
    ensures part { TextAndPartBegin }

    // What a look shows comes next in the text.
    ensures looks { LooksFollowText }
{}
