// What the tape of one page says: values (`values`), and number, head and rows (`content`). Nothing here walks a page's bytes.
#![tactic(auto)]

pub mod content;
pub mod values;
