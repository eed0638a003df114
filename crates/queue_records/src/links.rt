//! Links of records, set where the record stands (docs/STEPS.md, "What a call writes").

/// What becomes of a link.
#[derive(Clone, Copy, PartialEq, Default)]
pub enum Link<T> {
    /// It stays as it is.
    #[default]
    Stays,
    /// It leads nowhere from now on.
    Ends,
    /// It leads there from now on.
    LeadsTo(T),
}

/// What becomes of the links of a Message.
#[derive(Clone, Copy, PartialEq, Default)]
pub struct MessageLinks {
    /// To the message before it on the queue.
    pub previous: Link<u64>,
    /// To the message behind it on the queue.
    pub next: Link<u64>,
    /// To the next message of its type.
    pub next_of_type: Link<u64>,
}

/// What becomes of the links of a Type.
#[derive(Clone, Copy, PartialEq, Default)]
pub struct TypeLinks {
    /// The first message of it, where it is another now.
    pub first: Option<u64>,
    /// The last message of it, where it is another now.
    pub last: Option<u64>,
    /// To the next lower type on the queue.
    pub lower: Link<i64>,
    /// To the next higher type on the queue.
    pub higher: Link<i64>,
}

/// New links of a record. The rest of it stays.
#[derive(Clone, Copy, PartialEq)]
pub enum Links {
    /// Of a Message.
    Message(MessageLinks),
    /// Of a Type.
    Type(TypeLinks),
}
