// Entries gathered from source after source in two arrays that are sorted by key: the keys, and where the entries stand.
//
// `arrays` takes the entries of one table in, `sources` those of a place with its links, and of the tables of level 0, `level` those of a
// level below, and `store` all that is read. What comes later is newer. Nothing here changes the store.
#![tactic(auto)]

pub mod arrays;
pub mod level;
pub mod sources;
pub mod store;
