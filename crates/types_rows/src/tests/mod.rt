//! Small sources by kind, the limit of a type's size, and large sources.

mod crossing;
mod inferring;
mod limits;
mod marking;
mod printing;
mod repeating;
mod rows;
mod scale;
mod tables;
