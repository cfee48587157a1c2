mod benches;
mod counted;
mod drawn;
mod far;
mod lean;
mod ready;
mod records;
mod rows;
