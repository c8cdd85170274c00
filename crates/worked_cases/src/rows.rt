// Rows that are written out. They are macros, since a proof sees through them to the numbers.
macro_rules! node {
    ($zone:expr) => {
        node!($zone, Some($zone))
    };
    ($id:expr, $zone:expr) => {
        NodeRow {
            id: $id,
            zone: $zone,
        }
    };
}

// Identifier, the nodes at both ends, free-flow steps, storage, rate, and length in micrometres.
macro_rules! link {
    ($id:expr, $from:expr => $to:expr) => {
        link!($id, $from => $to, 10, 125, 600_000_000)
    };
    ($id:expr, $from:expr => $to:expr, $free:expr, $storage:expr, $rate:expr) => {
        link!($id, $from => $to, $free, $storage, $rate, 1_000_000_000)
    };
    ($id:expr, $from:expr => $to:expr, $free:expr, $storage:expr, $rate:expr, $length:expr) => {
        LinkRow {
            id: $id,
            from: NodeNo($from),
            to: NodeNo($to),
            micrometres: $length,
            free: $free,
            storage: $storage,
            rate: $rate,
        }
    };
}

// Number, zones, and step of departure.
macro_rules! trip {
    ($number:expr, $departure:expr) => {
        trip!($number, 1 => 3, $departure)
    };
    ($number:expr, $origin:expr => $destination:expr, $departure:expr) => {
        Trip {
            number: $number,
            origin: $origin,
            destination: $destination,
            departure: $departure,
        }
    };
}

pub(crate) use link;
pub(crate) use node;
pub(crate) use trip;
