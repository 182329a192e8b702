//! What a report says of a line.
ghost use Rattle.chaosd_show.specs.Entry.{IsReportedAsCarried, IsReportedAsCarried2, IsRefusedByFault, IsReportedAsDelivered, IsRefusedByChudpFault};

use chaos_chudp::law_carries_chudp;
use chaos_link::{law_carries, law_carries2};

/// What a report says of a datagram, by the grammar of datagrams and not by the code that reads
/// them.
pub fn law_report()
    // In the own format, a line is reported as a packet exactly where its bytes carry that packet
    // by version 1.
    ensures one { IsReportedAsCarried }
    // In the own format, a line is reported as several packets exactly where its bytes carry those
    // packets by version 2.
    ensures several { IsReportedAsCarried2 }
    // In the own format, a line is reported as refused by a fault exactly where that is the first
    // fault of its bytes.
    ensures refused { IsRefusedByFault }
    // In CHUDP, a line is reported as a packet with two hops and a sum exactly where its bytes
    // carry that packet to the one hop from the other, with that sum.
    ensures delivered { IsReportedAsDelivered }
    // In CHUDP, a line is reported as refused by a fault exactly where that is the first fault of
    // its bytes.
    ensures refused_chudp { IsRefusedByChudpFault }
{
    law_carries();
    law_carries2();
    law_carries_chudp();
}
