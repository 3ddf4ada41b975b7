//! What is told, as a page of HTML in one file: no scripts, fonts, images or addresses. It reads in
//! order in a text browser, and is light or dark as the reader's system is.

mod calls;
mod drawing;
mod page;
mod picture;
mod sections;
mod style;
mod whole;

pub use drawing::{Drawing, Joint, Line, Shape, Standing};
pub use whole::page_of;
