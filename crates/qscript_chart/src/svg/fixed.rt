//! The parts that are the same in each drawing.

/// The styles, the patterns of the states, the heads of the arrows, and the background.
pub const START: &str = "<title>A run of kernel calls, drawn from top to bottom</title>
<style>
text { font: 11px Verdana, 'DejaVu Sans', sans-serif; fill: #111 }
.words, .cut, .change { paint-order: stroke; stroke: #fff; stroke-width: 3px; stroke-linejoin: round }
.left { text-anchor: end }
.name { font-weight: bold; text-anchor: middle }
.first { text-anchor: middle }
.number { text-anchor: end; fill: #666 }
.change { font-style: italic }
.cut { fill: #8a0f2d }
.process { fill: #f4f4f4; stroke: #d8d8d8 }
.head { fill: #fff; stroke: #333 }
.guide { stroke: #e2e2e2 }
.ready { fill: #fff; stroke: #333 }
.send { fill: url(#send); stroke: #8f4a00 }
.receive { fill: url(#receive); stroke: #1a4f91; stroke-dasharray: 4 2 }
.reply { fill: url(#reply); stroke: #8a0f2d; stroke-width: 2 }
.message, .answer, .pulse { stroke: #111; stroke-width: 1.5; fill: none; marker-end: url(#head) }
.answer { stroke-dasharray: 8 4 }
.pulse { stroke-dasharray: 2 4; marker-end: url(#open) }
.dot { fill: #111 }
.ring { fill: #fff; stroke: #111; stroke-width: 1.5 }
.cross { stroke: #8a0f2d; stroke-width: 2.5; fill: none }
</style>
<defs>
<pattern id=\"send\" width=\"6\" height=\"6\" patternUnits=\"userSpaceOnUse\" patternTransform=\"rotate(45)\">
<rect width=\"6\" height=\"6\" fill=\"#ffe0b3\"/><rect width=\"2\" height=\"6\" fill=\"#c96f0c\"/></pattern>
<pattern id=\"receive\" width=\"5\" height=\"5\" patternUnits=\"userSpaceOnUse\">
<rect width=\"5\" height=\"5\" fill=\"#dcebff\"/><circle cx=\"2.5\" cy=\"2.5\" r=\"1\" fill=\"#1a4f91\"/></pattern>
<pattern id=\"reply\" width=\"6\" height=\"5\" patternUnits=\"userSpaceOnUse\">
<rect width=\"6\" height=\"5\" fill=\"#fbd7e0\"/><rect width=\"6\" height=\"2\" fill=\"#b8284e\"/></pattern>
<marker id=\"head\" viewBox=\"0 0 10 10\" refX=\"9\" refY=\"5\" markerWidth=\"10\" markerHeight=\"10\"
 markerUnits=\"userSpaceOnUse\" orient=\"auto\"><path d=\"M0,0 L10,5 L0,10 z\"/></marker>
<marker id=\"open\" viewBox=\"0 0 10 10\" refX=\"9\" refY=\"5\" markerWidth=\"10\" markerHeight=\"10\"
 markerUnits=\"userSpaceOnUse\" orient=\"auto\"><path d=\"M1,1 L9,5 L1,9\" fill=\"none\" stroke=\"#111\"
 stroke-width=\"1.8\"/></marker>
</defs>
<rect width=\"100%\" height=\"100%\" fill=\"#fff\"/>
";

/// The legend of the states and the arrows, in two lines.
pub const LEGEND: &str =
    "<rect class=\"ready\" x=\"0\" y=\"0\" width=\"14\" height=\"18\"/><text x=\"20\" y=\"13\">ready</text>
<rect class=\"send\" x=\"90\" y=\"0\" width=\"14\" height=\"18\"/><text x=\"110\" y=\"13\">SEND-blocked</text>
<rect class=\"receive\" x=\"230\" y=\"0\" width=\"14\" height=\"18\"/><text x=\"250\" y=\"13\">RECEIVE-blocked</text>
<rect class=\"reply\" x=\"390\" y=\"0\" width=\"14\" height=\"18\"/><text x=\"410\" y=\"13\">REPLY-blocked</text>
<line class=\"message\" x1=\"0\" y1=\"38\" x2=\"40\" y2=\"38\"/><text x=\"46\" y=\"42\">message</text>
<line class=\"answer\" x1=\"120\" y1=\"38\" x2=\"160\" y2=\"38\"/><text x=\"166\" y=\"42\">reply</text>
<line class=\"pulse\" x1=\"232\" y1=\"38\" x2=\"272\" y2=\"38\"/><text x=\"278\" y=\"42\">pulse</text>
<circle class=\"dot\" cx=\"338\" cy=\"38\" r=\"4\"/><text x=\"348\" y=\"42\">call</text>
<circle class=\"ring\" cx=\"396\" cy=\"38\" r=\"4\"/><text x=\"406\" y=\"42\">sent before</text>
<path class=\"cross\" d=\"M493,33 L503,43 M503,33 L493,43\"/><text x=\"510\" y=\"42\">cancelled</text>
";

/// The styles and the heads of the arrows of calls that are drawn in red or in grey.
pub const TONES: &str = "<style>
.faulty .words, .faulty .cut, .faulty .change, .faulty .dot { fill: #c4001d }
.faulty .message, .faulty .answer, .faulty .pulse, .faulty .ring { stroke: #c4001d }
.faulty .message, .faulty .answer { marker-end: url(#faulty) }
.faulty .pulse { marker-end: url(#faulty-open) }
.harmless .words, .harmless .cut, .harmless .change, .harmless .dot { fill: #767676 }
.harmless .message, .harmless .answer, .harmless .pulse, .harmless .ring { stroke: #767676 }
.harmless .message, .harmless .answer { marker-end: url(#harmless) }
.harmless .pulse { marker-end: url(#harmless-open) }
</style>
<defs>
<marker id=\"faulty\" viewBox=\"0 0 10 10\" refX=\"9\" refY=\"5\" markerWidth=\"10\" markerHeight=\"10\"
 markerUnits=\"userSpaceOnUse\" orient=\"auto\"><path d=\"M0,0 L10,5 L0,10 z\" fill=\"#c4001d\"/></marker>
<marker id=\"faulty-open\" viewBox=\"0 0 10 10\" refX=\"9\" refY=\"5\" markerWidth=\"10\" markerHeight=\"10\"
 markerUnits=\"userSpaceOnUse\" orient=\"auto\"><path d=\"M1,1 L9,5 L1,9\" fill=\"none\" stroke=\"#c4001d\"
 stroke-width=\"1.8\"/></marker>
<marker id=\"harmless\" viewBox=\"0 0 10 10\" refX=\"9\" refY=\"5\" markerWidth=\"10\" markerHeight=\"10\"
 markerUnits=\"userSpaceOnUse\" orient=\"auto\"><path d=\"M0,0 L10,5 L0,10 z\" fill=\"#767676\"/></marker>
<marker id=\"harmless-open\" viewBox=\"0 0 10 10\" refX=\"9\" refY=\"5\" markerWidth=\"10\" markerHeight=\"10\"
 markerUnits=\"userSpaceOnUse\" orient=\"auto\"><path d=\"M1,1 L9,5 L1,9\" fill=\"none\" stroke=\"#767676\"
 stroke-width=\"1.8\"/></marker>
</defs>
";

/// A third line of the legend, for a chart with calls in red or in grey.
pub const TONES_LEGEND: &str =
    "<g class=\"faulty\"><circle class=\"dot\" cx=\"7\" cy=\"62\" r=\"4\"/><text class=\"words\" x=\"20\" y=\"66\"\
     >the fault shows in this call</text></g>
<g class=\"harmless\"><circle class=\"dot\" cx=\"247\" cy=\"62\" r=\"4\"/><text class=\"words\" x=\"260\" y=\"66\"\
     >harmless: the fault doesn't depend on this call</text></g>
";
