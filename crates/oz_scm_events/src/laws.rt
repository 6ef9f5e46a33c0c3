//! Whose events alone tell what a story makes of the storage container manager and of datanodes, and what follows from it.

ghost use Rattle.std.specs.Prelude.{◌≡◌, ℕ, List, []};
ghost use Rattle.oz_buffer.specs.Buffer.{AllFollow, Follows};
ghost use Rattle.oz_core.specs.declared.event.Event.{Event as AnyEvent};
ghost use Rattle.oz_core.specs.declared.event.Node.TheVariants.{Scm};
ghost use Rattle.oz_core.specs.Manager.{halt_of};
ghost use Rattle.oz_core.specs.Nodes.{is_running};
ghost use Rattle.oz_core.specs.Scm.{acknowledgers, containers, is_retired, is_up, last_txn, logs, next_id, ups};
ghost use Rattle.oz_core.specs.Seats.{datanode_seat, scm_seat};
ghost use Rattle.oz_core.specs.Law.{IsNeeded};
ghost use Rattle.oz_requests.specs.declared.request.Exclude.{Exclude as AnyExclude};
ghost use Rattle.oz_scm.specs.declared.fault.GrantFault.{GrantFault as AnyFault};
ghost use Rattle.oz_scm_events.specs.Granted.{IsRefusal};
ghost use Rattle.oz_turn.specs.Told.{own_entries, BeginsWith};

use oz_buffer::Opened;

/// Where the disks agree, the events of the storage container manager's seat alone tell which id is granted next, which
/// containers were made, who is up, and what was logged, acknowledged and retired. Whatever the disks had, they alone tell
/// whether it halted.
pub fn the_scm_alone_tells<O: Opened>()
    ensures next { (story : List AnyEvent) → O.coherent →
        AllFollow (Follows O.coherent O.opening O.bytes O.script) [] story →
        next_id O.opening story ≡ next_id O.opening (own_entries (λ event. event.seat) scm_seat story) }
    ensures containers { (story : List AnyEvent) → O.coherent →
        AllFollow (Follows O.coherent O.opening O.bytes O.script) [] story →
        containers O.opening story ≡ containers O.opening (own_entries (λ event. event.seat) scm_seat story) }
    ensures up { (story : List AnyEvent) (dn : ℕ) → O.coherent →
        AllFollow (Follows O.coherent O.opening O.bytes O.script) [] story →
        is_up dn story ≡ is_up dn (own_entries (λ event. event.seat) scm_seat story) }
    ensures ups { (story : List AnyEvent) → O.coherent →
        AllFollow (Follows O.coherent O.opening O.bytes O.script) [] story →
        ups O.opening story ≡ ups O.opening (own_entries (λ event. event.seat) scm_seat story) }
    ensures last_txn { (story : List AnyEvent) → O.coherent →
        AllFollow (Follows O.coherent O.opening O.bytes O.script) [] story →
        last_txn O.opening story ≡ last_txn O.opening (own_entries (λ event. event.seat) scm_seat story) }
    ensures logs { (story : List AnyEvent) → O.coherent →
        AllFollow (Follows O.coherent O.opening O.bytes O.script) [] story →
        logs O.opening story ≡ logs O.opening (own_entries (λ event. event.seat) scm_seat story) }
    ensures acknowledgers { (story : List AnyEvent) (number : ℕ) → O.coherent →
        AllFollow (Follows O.coherent O.opening O.bytes O.script) [] story →
        acknowledgers O.opening story number
        ≡ acknowledgers O.opening (own_entries (λ event. event.seat) scm_seat story) number }
    ensures retired { (story : List AnyEvent) (number : ℕ) → O.coherent →
        AllFollow (Follows O.coherent O.opening O.bytes O.script) [] story →
        is_retired number story ≡ is_retired number (own_entries (λ event. event.seat) scm_seat story) }
    ensures halt { (story : List AnyEvent) →
        AllFollow (Follows O.coherent O.opening O.bytes O.script) [] story →
        halt_of Scm story ≡ halt_of Scm (own_entries (λ event. event.seat) scm_seat story) }
{}

/// Those of a datanode's seat alone tell whether it runs.
pub fn a_datanode_alone_tells_that_it_runs<O: Opened>()
    ensures { (story : List AnyEvent) (dn : ℕ) → O.coherent →
        AllFollow (Follows O.coherent O.opening O.bytes O.script) [] story →
        is_running dn story ≡ is_running dn (own_entries (λ event. event.seat) (datanode_seat dn) story) }
{}

/// What a stripe needs it needs until it is granted more: in each story that goes on from one in which it does, with no
/// further event of the storage container manager.
pub fn a_need_stays_until_a_grant<O: Opened>()
    ensures { (story seen : List AnyEvent) (stripe container pipeline : ℕ) → O.coherent →
        AllFollow (Follows O.coherent O.opening O.bytes O.script) [] story → BeginsWith story seen →
        own_entries (λ event. event.seat) scm_seat story ≡ own_entries (λ event. event.seat) scm_seat seen →
        IsNeeded O.opening seen stripe container pipeline → IsNeeded O.opening story stripe container pipeline }
{}

/// What a refusal says of the events of the storage container manager's seat it says of the whole story.
pub fn a_refusal_is_of_the_story<O: Opened>()
    ensures { (story : List AnyEvent) (exclude : AnyExclude) (fault : AnyFault) → O.coherent →
        AllFollow (Follows O.coherent O.opening O.bytes O.script) [] story →
        IsRefusal O.opening (own_entries (λ event. event.seat) scm_seat story) exclude fault →
        IsRefusal O.opening story exclude fault }
{}
