mod calls;
mod threads;
