mod chunked;
mod drains;
mod fixed;
mod reading;
