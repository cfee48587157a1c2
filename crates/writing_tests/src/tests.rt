mod fields;
mod parts;
