//! The calls under test, by their numbers.

use anyhow::{Error, bail};

/// A call under test, as the words of its line.
///
/// At the place `provider`: `line` is the call of the lines by `step`, and `run` the calls of the lines by `run`; `meter`
/// asks for the meter of a name, and `scope` by `meter_with_scope`; `collect` collects with callbacks, `collected` into a
/// new collection; `typed` makes the call of the lines by a method, at instruments as values: a build with all that can be
/// set, a record, or a handle that is bound, records and ends; `arrays` records with arrays as values of attributes;
/// `export` makes the text of a collection, and `copy` copies one or the lines; `timeout` shuts down with a time limit; and
/// `build` is the builder of a provider.
///
/// The place `boxed` is such a provider whose readers, views and callbacks stand in boxes, `alone` one with one reader,
/// `full` the same with an overflow entry of the first instrument, and `shut` one that was shut down. The place
/// `aggregate` is an aggregate without a provider that has two sets: `known` takes in a value for one of them, `measure`
/// for a new one. At the place `shared`, which is a shared provider with a worker: `line` and `collect`; `open` opens the
/// worker; `add` adds a record in some way to the records that wait; `submit`, of which every second, from the first, must
/// not be refused, `submit_all` again and again until it is not refused, and `take_first` are of the records that wait;
/// and `settle` leaves them. A value, at the place `value`, needs no provider, nor does the
/// place `outbox`, where a line is pushed and sent.
#[derive(Drop)]
pub struct Scenario<'a> {
    /// Whether the call must not be refused for want of memory.
    pub is_sure: bool,
    /// Where the call is made.
    pub place: &'a str,
    /// The call.
    pub call: &'a str,
    /// The way in which it is made, or a name.
    pub word: &'a str,
    /// The lines of a script that state what the call takes, with the observations before it.
    pub lines: &'a str,
    /// The lines of the records that wait in the list of a worker before the call.
    pub waiting: &'a str,
}

/// The scenarios, a line each: `maybe` if the call may be refused for want of memory, `sure` if it must not be; the place;
/// the call; and a further word. Then come, after a bar each, the lines that it is given and the records that wait. These
/// lines are separated by semicolons.
pub const SCENARIOS: &str = "\
maybe provider line | meter other 2.0
maybe provider line | build 0 u64_counter more 180 description=d unit=ms
maybe provider line | build 0 i64_up_down_counter more 180
maybe provider line | build 0 u64_gauge more 180
maybe provider line | build 0 i64_gauge more 180
maybe provider line | build 0 u64_histogram more 180 bounds=1,5
maybe provider line | build 0 u64_observable_counter more 180
maybe provider line | build 0 i64_observable_up_down_counter more 180
maybe provider line | build 0 u64_observable_gauge more 180
maybe provider line | build 0 i64_observable_gauge more 180
maybe provider line | build none u64_counter more 180
maybe provider line | build 0 u64_counter _more 180
maybe provider line | build 0 u64_counter LIMITED 180
maybe provider line | build 0 u64_counter twice 180 description=d
maybe provider line | build 0 i64_up_down_counter allowed 180 unit=ms
maybe provider line | record 1 i:8 d=i:4,b=s:new,a=i:9
maybe provider line | record 2 u:8 z=i:9,y=s:x
maybe provider line | record 3 u:8 z=i:9
maybe provider line | record 4 i:8 z=b:true
maybe provider line | record 5 u:8 z=i:9
maybe provider line | record 5 u:8 otel.metric.overflow=b:true
maybe provider line | record 3 u:8 q=i:1,p=i:1,o=i:1,n=i:1,m=i:1,l=i:1,k=i:1,j=i:1,i=i:1,h=i:1,g=i:1,f=i:1,e=i:1,d=i:1,c=i:1,b=i:1,a=i:1,z=i:1
maybe provider line | bind 0 z=i:9
maybe provider line | bind 1 b=s:new
maybe provider line | bind 2 z=i:9
maybe provider line | bind 3 a=i:1
maybe provider line | bind 4 -
maybe provider line | bind 5 z=i:9
maybe provider line | collect 0 200
maybe provider line | collect 1 200
maybe provider line | collect 2 200
maybe provider line | observe 6 u:30 a=i:1;observe 6 u:5 z=i:9;observe 7 i:-3 a=i:1;observe 8 u:3 a=i:1;observe 9 i:-3 z=i:9;collect 0 200
maybe provider line | observe 6 u:30 a=i:1;observe 6 u:5 z=i:9;observe 7 i:-3 a=i:1;observe 8 u:3 a=i:1;observe 9 i:-3 z=i:9;collect 1 200
maybe provider line | observe 6 u:30 a=i:1;observe 6 u:5 z=i:9;observe 7 i:-3 a=i:1;observe 8 u:3 a=i:1;observe 9 i:-3 z=i:9;collect 2 200
maybe provider run | record 0 u:8 z=i:9;meter other;build 1 u64_counter more 180;record 13 u:8 z=i:9;bind 13 y=i:9;recordbound 3 u:1;unbind 3;collect 1 200
maybe provider run | collect 0 200;record 2 u:8 z=i:9;collect 2 200;flush;shutdown
maybe provider meter other | meter other
maybe provider scope | meter other
maybe provider typed | build 0 u64_counter more 180
maybe provider typed | build 0 i64_up_down_counter more 180
maybe provider typed | build 0 u64_gauge more 180
maybe provider typed | build 0 i64_gauge more 180
maybe provider typed | build 0 u64_histogram more 180
maybe provider typed | build 0 u64_observable_counter more 180
maybe provider typed | build 0 i64_observable_up_down_counter more 180
maybe provider typed | build 0 u64_observable_gauge more 180
maybe provider typed | build 0 i64_observable_gauge more 180
maybe provider typed | record 1 i:-8 d=i:4,b=s:new,a=i:9
maybe provider typed | record 2 u:8 z=i:9
maybe provider typed | record 4 i:-8 z=i:9
maybe provider typed | bind 0 z=i:9
maybe provider typed | bind 1 b=s:new
maybe provider typed | bind 2 -
maybe provider collect | collect 0 200
maybe provider collect | collect 1 200
maybe provider collect | collect 2 200
maybe provider build
maybe provider arrays
maybe provider export prometheus
maybe provider export openmetrics
maybe provider export otlp
maybe provider copy collection
maybe provider copy calls | build 0 u64_histogram more 180 bounds=1,5 description=d;record 1 i:8 b=s:new,a=i:9;observe 6 u:30 a=i:1;collect 0 200
maybe provider collected | collect 0 200
maybe provider collected | collect 1 200
maybe provider collected | collect 2 200
maybe boxed build
maybe boxed line | build 0 u64_counter limited 180 description=d
maybe boxed line | record 1 i:8 d=i:4,b=s:new,a=i:9
maybe boxed run | record 0 u:8 z=i:9;meter other;build 1 u64_counter more 180;record 13 u:8 z=i:9;bind 13 y=i:9;collect 1 200
maybe boxed typed | build 0 u64_observable_counter more 180
maybe boxed typed | build 0 i64_observable_gauge more 180
maybe boxed typed | bind 1 b=s:new
maybe boxed collect | collect 0 200
maybe boxed collect | collect 1 200
maybe boxed collected | collect 2 200
maybe shut line | build 0 u64_counter more 180 description=d
maybe shut line | record 1 i:8 d=i:4,b=s:new,a=i:9
maybe shut line | record 3 u:8 z=i:9
maybe shut line | bind 2 z=i:9
maybe shut run | record 0 u:8 z=i:9;meter other;bind 0 y=i:9;recordbound 3 u:1;unbind 3;collect 1 200;flush;shutdown
maybe shut typed | bind 1 b=s:new
maybe shut arrays
maybe shut meter other
maybe aggregate measure sum
maybe aggregate measure observed
maybe aggregate measure last
maybe aggregate measure histogram
maybe aggregate measure map
maybe aggregate collect sum
maybe aggregate collect observed
maybe aggregate collect last
maybe aggregate collect histogram
maybe aggregate collect map
maybe alone line | record 0 u:8 z=i:9
maybe alone line | record 1 i:8 d=i:4,b=s:new,a=i:9
maybe alone line | record 2 u:8 z=i:9,y=s:x
maybe alone line | record 3 u:8 z=i:9
maybe alone line | record 4 i:8 z=b:true
maybe alone line | record 5 u:8 z=i:9
maybe alone line | record 3 u:8 q=i:1,p=i:1,o=i:1,n=i:1,m=i:1,l=i:1,k=i:1,j=i:1,i=i:1,h=i:1,g=i:1,f=i:1,e=i:1,d=i:1,c=i:1,b=i:1,a=i:1,z=i:1
maybe alone typed | record 0 u:8 z=i:9
maybe outbox push
maybe value got
maybe value merged
maybe value built
maybe value scope
maybe value canonical
maybe value arrays
maybe value attributes
maybe value selected
maybe shared line | meter other 2.0
maybe shared line | build 0 u64_counter more 180 description=d unit=ms
maybe shared line | build 0 u64_counter LIMITED 180
maybe shared line | build 0 u64_histogram more 180 bounds=1,5
maybe shared line | build 0 u64_observable_counter more 180
maybe shared line | bind 0 z=i:9
maybe shared line | bind 1 b=s:new
maybe shared line | collect 0 200
maybe shared line | collect 1 200
maybe shared line | observe 6 u:30 a=i:1;observe 6 u:5 z=i:9;observe 7 i:-3 a=i:1;observe 8 u:3 a=i:1;observe 9 i:-3 z=i:9;collect 2 200
maybe shared collect | collect 0 200
maybe shared collect | collect 1 200
maybe shared collect | collect 2 200
maybe shared add number | record 0 u:8 z=i:9
maybe shared add number | record 0 u:8 z=i:9 | record 0 u:8 -;record 0 u:8 a=i:1;record 2 u:8 a=i:1;recordbound 0 u:8
maybe shared add number | record 0 u:8 a=i:1 | record 0 u:8 -;record 0 u:8 a=i:1;record 2 u:8 a=i:1;recordbound 0 u:8
maybe shared add series | record 0 u:8 z=i:9
maybe shared add series | record 0 u:8 a=i:1 | record 0 u:8 -;record 0 u:8 a=i:1;record 2 u:8 a=i:1;recordbound 0 u:8
maybe shared add reserve | record 0 u:8 z=i:9
maybe shared add handle_number | record 0 u:8 z=i:9
maybe shared add counter | record 0 u:8 z=i:9
maybe shared add up_down_counter | record 0 u:8 z=i:9 | record 0 u:8 -;record 0 u:8 a=i:1;record 2 u:8 a=i:1;recordbound 0 u:8
maybe shared add histogram | record 0 u:8 z=i:9
maybe shared add gauge | record 0 u:8 z=i:9 | record 0 u:8 -;record 0 u:8 a=i:1;record 2 u:8 a=i:1;recordbound 0 u:8
maybe shared add handle | record 0 u:8 z=i:9
maybe shared add handle | record 0 u:8 z=i:9 | record 0 u:8 -;record 0 u:8 a=i:1;record 2 u:8 a=i:1;recordbound 0 u:8
maybe shared submit | | record 0 u:8 -;record 0 u:8 z=i:9;record 1 i:8 a=s:x,b=i:1;record 1 i:8 d=i:4,b=s:new,a=i:9;recordbound 0 u:8;record 2 u:8 z=i:9,y=s:x;record 3 u:8 a=i:1;record 3 u:8 z=i:9;record 4 i:8 a=i:1;record 4 i:8 z=b:true;recordbound 2 u:8;record 5 u:8 otel.metric.overflow=b:true
maybe shared submit_all | | record 0 u:8 -;record 0 u:8 z=i:9;record 1 i:8 a=s:x,b=i:1;record 1 i:8 d=i:4,b=s:new,a=i:9;recordbound 0 u:8;record 2 u:8 z=i:9,y=s:x;record 3 u:8 a=i:1;record 3 u:8 z=i:9;record 4 i:8 a=i:1;record 4 i:8 z=b:true;recordbound 2 u:8;record 5 u:8 otel.metric.overflow=b:true
maybe shared submit | | record 5 u:8 -;record 5 u:8 otel.metric.overflow=b:true;record 5 u:8 -;record 5 u:8 otel.metric.overflow=b:true;record 5 u:8 -;record 5 u:8 otel.metric.overflow=b:true;record 5 u:8 -;record 5 u:8 otel.metric.overflow=b:true;record 0 u:8 a=i:1;record 0 u:8 z=i:9,y=i:8,x=i:7,w=i:6;record 0 u:8 a=i:1;record 0 u:8 z=i:9,y=i:8,x=i:7,w=i:6;record 0 u:8 a=i:1;record 0 u:8 z=i:9,y=i:8,x=i:7,w=i:6;record 0 u:8 a=i:1;record 0 u:8 z=i:9,y=i:8,x=i:7,w=i:6;recordbound 0 u:8;record 3 u:8 z=i:9,y=i:8,x=i:7,w=i:6;record 3 u:8 a=i:1;record 3 u:8 z=i:9,y=i:8,x=i:7,w=i:6;record 99 u:8 z=i:9,y=i:8,x=i:7,w=i:6
maybe shared submit | | record 1 i:8 b=i:1,c=i:7,a=s:x,a=i:4;record 1 i:8 d=i:4,b=s:new,a=i:9,e=i:5;record 2 u:8 a=i:1;record 2 u:8 z=i:9,y=s:x,x=i:7,w=i:6;record 1 i:8 b=i:1,c=i:7,a=s:x,a=i:4;record 1 i:8 d=i:4,b=s:new,a=i:9,e=i:5;record 2 u:8 a=i:1;record 2 u:8 z=i:9,y=s:x,x=i:7,w=i:6;record 1 i:8 b=i:1,c=i:7,a=s:x,a=i:4;record 1 i:8 d=i:4,b=s:new,a=i:9,e=i:5;record 2 u:8 a=i:1;record 2 u:8 z=i:9,y=s:x,x=i:7,w=i:6;record 1 i:8 b=i:1,c=i:7,a=s:x,a=i:4;record 1 i:8 d=i:4,b=s:new,a=i:9,e=i:5;record 2 u:8 a=i:1;record 2 u:8 z=i:9,y=s:x,x=i:7,w=i:6;recordbound 2 u:8;record 2 u:8 z=i:9,y=s:x,x=i:7,w=i:6;record 1 i:8 b=i:1,c=i:7,a=s:x,a=i:4;record 2 u:8 z=i:9,y=s:x,x=i:7,w=i:6;record 1 i:8 b=i:1,c=i:7,a=s:x,a=i:4;record 2 u:8 z=i:9,y=s:x,x=i:7,w=i:6;record 1 i:8 b=i:1,c=i:7,a=s:x,a=i:4;record 2 u:8 z=i:9,y=s:x,x=i:7,w=i:6;record 1 i:8 b=i:1,c=i:7,a=s:x,a=i:4;record 4 i:8 z=b:true;record 99 u:8 z=i:9,y=i:8,x=i:7,w=i:6
maybe shared submit | | record 0 u:8 a=i:1;record 0 u:8 z=i:9,y=i:8,x=i:7,w=i:6;record 3 u:8 a=i:1;record 3 u:8 z=i:9,y=i:8,x=i:7,w=i:6;record 3 u:8 a=i:1;record 3 u:8 z=i:9,y=i:8,x=i:7,w=i:6;record 3 u:8 a=i:1;record 3 u:8 z=i:9,y=i:8,x=i:7,w=i:6;record 3 u:8 a=i:1;record 3 u:8 z=i:9,y=i:8,x=i:7,w=i:6;record 4 i:8 a=i:1;record 4 i:8 z=b:true;record 5 u:8 -;record 5 u:8 z=i:9,y=i:8,x=i:7,w=i:6
maybe shared submit_all | | record 5 u:8 -;record 5 u:8 otel.metric.overflow=b:true;record 5 u:8 -;record 5 u:8 otel.metric.overflow=b:true;record 5 u:8 -;record 5 u:8 otel.metric.overflow=b:true;record 5 u:8 -;record 5 u:8 otel.metric.overflow=b:true;record 0 u:8 a=i:1;record 0 u:8 z=i:9,y=i:8,x=i:7,w=i:6;record 0 u:8 a=i:1;record 0 u:8 z=i:9,y=i:8,x=i:7,w=i:6;record 0 u:8 a=i:1;record 0 u:8 z=i:9,y=i:8,x=i:7,w=i:6;record 0 u:8 a=i:1;record 0 u:8 z=i:9,y=i:8,x=i:7,w=i:6;recordbound 0 u:8;record 3 u:8 z=i:9,y=i:8,x=i:7,w=i:6;record 3 u:8 a=i:1;record 3 u:8 z=i:9,y=i:8,x=i:7,w=i:6;record 99 u:8 z=i:9,y=i:8,x=i:7,w=i:6
maybe shared submit_all | | record 1 i:8 b=i:1,c=i:7,a=s:x,a=i:4;record 1 i:8 d=i:4,b=s:new,a=i:9,e=i:5;record 2 u:8 a=i:1;record 2 u:8 z=i:9,y=s:x,x=i:7,w=i:6;record 1 i:8 b=i:1,c=i:7,a=s:x,a=i:4;record 1 i:8 d=i:4,b=s:new,a=i:9,e=i:5;record 2 u:8 a=i:1;record 2 u:8 z=i:9,y=s:x,x=i:7,w=i:6;record 1 i:8 b=i:1,c=i:7,a=s:x,a=i:4;record 1 i:8 d=i:4,b=s:new,a=i:9,e=i:5;record 2 u:8 a=i:1;record 2 u:8 z=i:9,y=s:x,x=i:7,w=i:6;record 1 i:8 b=i:1,c=i:7,a=s:x,a=i:4;record 1 i:8 d=i:4,b=s:new,a=i:9,e=i:5;record 2 u:8 a=i:1;record 2 u:8 z=i:9,y=s:x,x=i:7,w=i:6;recordbound 2 u:8;record 2 u:8 z=i:9,y=s:x,x=i:7,w=i:6;record 1 i:8 b=i:1,c=i:7,a=s:x,a=i:4;record 2 u:8 z=i:9,y=s:x,x=i:7,w=i:6;record 1 i:8 b=i:1,c=i:7,a=s:x,a=i:4;record 2 u:8 z=i:9,y=s:x,x=i:7,w=i:6;record 1 i:8 b=i:1,c=i:7,a=s:x,a=i:4;record 2 u:8 z=i:9,y=s:x,x=i:7,w=i:6;record 1 i:8 b=i:1,c=i:7,a=s:x,a=i:4;record 4 i:8 z=b:true;record 99 u:8 z=i:9,y=i:8,x=i:7,w=i:6
maybe shared submit_all | | record 0 u:8 a=i:1;record 0 u:8 z=i:9,y=i:8,x=i:7,w=i:6;record 3 u:8 a=i:1;record 3 u:8 z=i:9,y=i:8,x=i:7,w=i:6;record 3 u:8 a=i:1;record 3 u:8 z=i:9,y=i:8,x=i:7,w=i:6;record 3 u:8 a=i:1;record 3 u:8 z=i:9,y=i:8,x=i:7,w=i:6;record 3 u:8 a=i:1;record 3 u:8 z=i:9,y=i:8,x=i:7,w=i:6;record 4 i:8 a=i:1;record 4 i:8 z=b:true;record 5 u:8 -;record 5 u:8 z=i:9,y=i:8,x=i:7,w=i:6
sure provider line | meter app
sure provider line | record 0 u:8 -
sure provider line | record 1 i:8 -
sure provider line | record 2 u:8 -
sure provider line | record 3 u:8 -
sure provider line | record 5 u:8 -
sure provider line | record 0 u:8 a=i:1
sure provider line | record 1 i:8 a=s:x,b=i:1
sure provider line | record 1 i:8 b=i:1,c=i:7,a=s:x,a=i:4
sure provider line | record 2 u:8 a=i:1
sure provider line | record 3 u:8 a=i:1
sure provider line | record 4 i:8 a=i:1
sure provider line | record 3 u:8 q=i:1,p=i:1,o=i:1,n=i:1,m=i:1,l=i:1,k=i:1,j=i:1,i=i:1,h=i:1,g=i:1,f=i:1,e=i:1,d=i:1,c=i:1,b=i:1,a=i:1
sure provider line | record 0 u:8 z=i:9
sure provider line | record 0 u:8 q=i:1,p=i:1,o=i:1,n=i:1,m=i:1,l=i:1,k=i:1,j=i:1,i=i:1,h=i:1,g=i:1,f=i:1,e=i:1,d=i:1,c=i:1,b=i:1,a=i:1
sure provider line | recordbound 0 u:8
sure provider line | recordbound 1 u:8
sure provider line | recordbound 2 u:8
sure provider line | unbind 0
sure provider line | unbind 1
sure provider line | unbind 2
sure provider line | flush
sure provider line | shutdown
sure provider line | build 9 u64_counter more 180
sure provider line | record 99 u:8 z=i:9
sure provider line | record 6 u:8 z=i:9
sure provider line | record 0 i:8 z=i:9
sure provider line | bind 99 z=i:9
sure provider line | bind 6 z=i:9
sure provider line | recordbound 9 u:8
sure provider line | unbind 9
sure provider line | collect 9 200
sure provider scope | meter app
sure provider typed | record 0 u:8 -
sure provider typed | record 0 u:8 z=i:9
sure provider typed | record 0 u:8 a=i:1
sure provider typed | record 1 i:-8 b=i:1,c=i:7,a=s:x
sure provider typed | record 2 u:8 -
sure provider typed | flush
sure provider typed | shutdown
sure provider timeout | shutdown
sure shut line | meter other
sure shut line | record 0 u:8 -
sure shut line | record 1 i:8 b=i:1,c=i:7,a=s:x,a=i:4
sure shut line | recordbound 0 u:8
sure shut line | unbind 0
sure shut line | collect 1 200
sure shut line | flush
sure shut line | shutdown
sure shut collect | collect 1 200
sure shut collected | collect 1 200
sure shut timeout
sure aggregate known sum
sure aggregate known observed
sure aggregate known last
sure aggregate known histogram
sure aggregate known map
sure alone line | record 0 u:8 -
sure alone line | record 5 u:8 -
sure alone line | record 0 u:8 a=i:1
sure alone line | record 1 i:8 b=i:1,c=i:7,a=s:x,a=i:4
sure alone line | record 2 u:8 b=i:1
sure alone line | record 3 u:8 a=i:1
sure alone line | recordbound 0 u:8
sure alone line | recordbound 2 u:8
sure full line | record 0 u:8 z=i:9
sure full line | record 0 u:8 z=i:9,y=s:x,a=i:1
sure outbox send
sure value stream
sure value reader
sure shared line | meter app
sure shared line | record 0 u:8 z=i:9
sure shared line | recordbound 0 u:8
sure shared line | unbind 0
sure shared line | flush
sure shared line | shutdown
sure shared line | bind 99 z=i:9
sure shared line | collect 9 200
sure shared collect | collect 9 200
sure shared open
sure shared submit
sure shared submit | | record 0 u:8 -;record 0 u:8 a=i:1;record 1 i:8 b=i:1,c=i:7,a=s:x,a=i:4;record 2 u:8 a=i:1;record 3 u:8 a=i:1;record 4 i:8 a=i:1;record 5 u:8 -;recordbound 0 u:8;recordbound 1 u:8;recordbound 2 u:8
sure shared submit | | record 0 u:8 a=i:1;record 1 i:8 b=i:1,c=i:7,a=s:x,a=i:4;record 2 u:8 a=i:1;record 0 u:8 a=i:1;record 1 i:8 b=i:1,c=i:7,a=s:x,a=i:4;record 2 u:8 a=i:1;record 0 u:8 a=i:1;record 1 i:8 b=i:1,c=i:7,a=s:x,a=i:4;record 2 u:8 a=i:1;record 0 u:8 a=i:1;record 1 i:8 b=i:1,c=i:7,a=s:x,a=i:4;record 2 u:8 a=i:1;recordbound 1 u:8;record 3 u:8 a=i:1
sure shared submit | | record 3 u:8 a=i:1;record 4 i:8 a=i:1;record 5 u:8 -;record 3 u:8 a=i:1;record 4 i:8 a=i:1;record 5 u:8 -;record 3 u:8 a=i:1;record 4 i:8 a=i:1;record 5 u:8 -;record 3 u:8 a=i:1;record 4 i:8 a=i:1;record 5 u:8 -;record 0 u:8 -;record 99 u:8 z=i:9
sure shared submit | | record 0 u:8 -;record 99 u:8 z=i:9
sure shared take_first | | record 0 u:8 -;record 0 u:8 z=i:9;record 1 i:8 a=s:x,b=i:1;record 1 i:8 d=i:4,b=s:new,a=i:9;recordbound 0 u:8;record 2 u:8 z=i:9,y=s:x;record 3 u:8 a=i:1;record 3 u:8 z=i:9;record 4 i:8 a=i:1;record 4 i:8 z=b:true;recordbound 2 u:8;record 5 u:8 otel.metric.overflow=b:true
sure shared settle | | record 0 u:8 -;record 0 u:8 z=i:9;record 1 i:8 a=s:x,b=i:1;record 1 i:8 d=i:4,b=s:new,a=i:9;recordbound 0 u:8;record 2 u:8 z=i:9,y=s:x;record 3 u:8 a=i:1;record 3 u:8 z=i:9;record 4 i:8 a=i:1;record 4 i:8 z=b:true;recordbound 2 u:8;record 5 u:8 otel.metric.overflow=b:true";

/// Says that a scenario has a word that nothing is known by.
pub fn unknown(word: &str) -> Result<(), Error> {
    bail!("nothing is known by the word {word}")
}

/// The first word of a text, and what stands behind it.
fn first_word(text: &'static str) -> (&'static str, &'static str) {
    text.split_once(" ").unwrap_or((text, ""))
}

/// The scenario of a line.
pub fn scenario_of(line: &'static str) -> Scenario<'static> {
    let (words, texts) = line.split_once("|").unwrap_or((line, ""));
    let (lines, waiting) = texts.split_once("|").unwrap_or((texts, ""));
    let (kind, words) = first_word(words.trim());
    let (place, words) = first_word(words);
    let (call, word) = first_word(words);
    Scenario {
        is_sure: kind == "sure",
        place,
        call,
        word,
        lines,
        waiting,
    }
}
