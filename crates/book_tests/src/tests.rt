mod behind;
mod books;
mod desks;
mod drawn;
mod edits;
mod full;
mod memory;
mod rooms;
