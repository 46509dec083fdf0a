//! What is written reads back, for each algorithm that keeps its laws. Each law is the contract of a function that does
//! nothing.

ghost use Rattle.gimv_base.specs.ReadBack.{EntriesReadBack, MessagesReadBack, ValuesReadBack};

/// A node's value reads back from its line.
pub fn values_read_back<Val, Msg, Weight>()
    ensures { ValuesReadBack Val Msg Weight }
{}

/// An entry reads back from its line, where its weight does.
pub fn entries_read_back<Val, Msg, Weight>()
    ensures { EntriesReadBack Val Msg Weight }
{}

/// A message reads back from its line.
pub fn messages_read_back<Val, Msg, Weight>()
    ensures { MessagesReadBack Val Msg Weight }
{}
