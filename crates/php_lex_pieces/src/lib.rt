// The pieces of a script by themselves: bytes, names, numbers, signs, comments, and the texts of templates and heredocs.
#![tactic(auto)]

mod bytes;
mod comments;
mod escapes;
mod heredocs;
mod keywords;
mod numbers;
mod punctuators;
mod search;
mod words;

pub use bytes::{Class, byte, is_blank, is_name_start, name_len, newline_len, run};
pub use comments::{
    begins_comment, begins_echo, block_end, comment_start_len, inline_len, line_comment_len,
    open_tag_len, raw_len,
};
pub use escapes::{Delimiter, ends, is_cut_escape, push_text, text_len};
pub use heredocs::{FirstLine, closing_len, is_label_line, nowdoc_len, opening};
pub use numbers::{NumberFault, int_key, key_len, number};
pub use punctuators::punctuator;
pub use words::{cast, word, word_kind};
