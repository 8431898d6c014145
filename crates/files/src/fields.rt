// An event's fields as a file has them, before they are judged.

// An end: a time in seconds, or FOREVER.
#[derive(Clone, Copy, PartialEq, Eq, Debug)]
pub enum EndField {
    At(u32),
    Forever,
}

// The fields of a row.
#[derive(Clone, Copy, PartialEq, Eq, Debug)]
pub struct RowFields {
    pub id: u32,
    pub start: u32,
    pub end: EndField,
    pub key: u32,
    pub value: u32,
}

// The fields of an event.
#[derive(Clone, Copy, PartialEq, Eq, Debug)]
pub enum Fields {
    Insert(RowFields),
    Retraction { row: RowFields, new_end: EndField },
    Cti(u32),
}
