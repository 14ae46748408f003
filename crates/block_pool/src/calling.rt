// The calls of a process, by its running parts: how one begins, its steps of the transfer, its own step, and the whole. A search
// runs whole transfers in place of a quantum.
mod beginning;
mod moving;
mod owning;
mod searching;
mod whole;
