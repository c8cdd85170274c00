// What no whole run shows.
mod boards;
mod cases;
mod floors;
mod machines;
mod puts;
mod routes;
mod shares;
mod tables;
mod zone_labels;
