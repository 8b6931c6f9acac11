// Where lines and fields stand in a text (document 02, L2; docs/KISS2.md, rules 1 and 2). Nothing is copied: what is found are
// places.
#![tactic(auto)]

mod line_fields;
mod lines;

pub use line_fields::{fields_of, next_field};
pub use lines::line_end;

// A part of a text: the bytes from `start` on, up to `end`, which is behind it.
#[derive(Clone, Copy)]
pub struct Part {
    pub start: usize,
    pub end: usize,
}

// The fields of a line. No line may have more than four: `count` is 5 where there are more. Of the parts, the first `count` are fields.
#[derive(Clone, Copy)]
pub struct Fields {
    pub count: u8,
    pub a: Part,
    pub b: Part,
    pub c: Part,
    pub d: Part,
}
