mod benches;
mod drawn;
mod lines;
mod north;
mod points;
