// A plain list of pages, and stable pages.

mod plain;
mod stops;
