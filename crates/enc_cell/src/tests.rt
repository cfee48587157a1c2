//! The program as one call: what no list of cases can say, since it depends on what was drawn or no call of theirs brings it about.

mod calls;
mod devices;
mod drawn;
mod draws;
mod edges;
mod journal;
mod lines;
mod room;
mod square;
mod stuck;
