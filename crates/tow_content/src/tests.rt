mod gathered;
mod long;
mod rows;
mod sources;
