// Examples: which plan files are read, which rule the others break, what plainly is no plan, which
// lines are calls, what runs come to, and how batches, shares, regions, entries and histories are
// shown.
mod batches;
mod calls;
mod entries;
mod files;
mod kinds;
mod limits;
mod makers;
mod refusals;
mod run_ends;
mod shares;
mod tables;
mod texts;
