// The two books of a replay, as its caller lends them, each over places that are lent for a time of their own.
use daybook::book::Book;
use daybook::entry::alarm::Alarm;
use daybook::entry::unwatched::Unwatched;

#[derive(Drop)]
pub(super) struct Books<'b, 'p, 'q> {
    pub(super) alarms: &'b mut Book<'p, Alarm>,
    pub(super) unwatched: &'b mut Book<'q, Unwatched>,
}
