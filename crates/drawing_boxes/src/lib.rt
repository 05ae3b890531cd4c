//! What drawings are made of: the events of a script, names, texts as they stand in a page, and boxes: what
//! they say, how wide that is, and where they stand in a row.
#![tactic(auto)]

mod caption;
mod drawn_name;
mod escaped;
mod fault;
mod frame;
mod numbered;
mod width;

pub use caption::{Caption, Digits, InOneLine, More, Rest, What};
pub use drawn_name::{DrawnName, drawn_name_of};
pub use escaped::{in_xml, push_css_text, push_escaped};
pub use fault::DrawFault;
pub use frame::{Frame, LANES_FROM, LANES_WIDTH, Lane, Lanes, MARGIN};
pub use numbered::{MAX_EVENTS, Numbered, events_to_draw, numbered_events};
pub use width::{digits_width_of, width_of};
