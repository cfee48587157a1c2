mod benches;
mod drawn;
mod looks;
mod order;
mod readers;
mod rows;
mod tiles;
