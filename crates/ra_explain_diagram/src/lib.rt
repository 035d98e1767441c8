//! A picture of the part of a history that led to a violating label. Replicas are columns, events are rows, deliveries
//! are arrows, and helpful changes are dashed. If no order explains the label, the picture shows which labels have to
//! come before which: by a column of lines, or by arcs. It is written as characters below the text, as a drawing (SVG),
//! or in a document with the text (HTML).
//!
//! The contract for the layer above: each call returns, and the error `NoMemory` means that an allocation failed.
//! `put_page` appends the text of the explanation and for a violation a picture, `put_html` the document with the text,
//! and `put_svg` a drawing (`specs/Pages`). An event has the line, the words, the replicas and the dashes of its entry,
//! label or remedy (`Event::of`, `specs/Drawn`). The rows leave no gap up to the violating label, each dashed one is a
//! remedy, and the arrows are those of the certificate (`Picture::of`, `specs/Arrows`). A line of the picture has the
//! head of its event in front (`specs/Pictures`), and the drawing of a document ends with an arc for each arrow
//! (`specs/Arcs`). No clause states which entries are drawn, or how; stored pages and the model test that
//! (`tests/explanations`).
#![tactic(auto)]

mod arcs;
mod arrow;
mod chosen;
mod drawing;
mod event;
mod html;
mod order_column;
mod page;
mod picture;
mod svg;

pub use html::put_html;
pub use page::put_page;
pub use svg::put_svg;
