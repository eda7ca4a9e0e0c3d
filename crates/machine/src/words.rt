// The words, one function or more each, over the registers of the running frame.
mod arithmetic;
mod calls;
mod entries;
mod giving;
mod in_place;
mod joining;
mod jumps;
mod landing;
mod lists;
mod loops;
mod performing;
mod rows;
mod setting;
mod straight;
mod tables;
mod tests;

pub use calls::{call, count_of, results_to};
pub use in_place::quick;
pub use landing::land;
pub use lists::{joined, listed};
pub use performing::perform;
pub use rows::put_all;
pub use setting::{key_of, put_items, set_list};
